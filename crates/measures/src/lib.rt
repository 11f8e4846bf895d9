//! Measures: what a leaf's corners count along a route, with the laws that make their bounds true.
#![tactic(auto)]

pub mod load;
pub mod measure;
pub mod moves;
pub mod pair;
pub mod time;
pub mod words;

#[cfg(test)]
mod tests {
    use crate::load::Load;
    use crate::measure::Measure;
    use crate::moves::Move;
    use crate::pair::{Both, Pair};
    use crate::time::Time;
    use std::test::Fail;

    // 10 of service and 20 of travel to a place open from 40 to 90, which adds 4 of a van's 12.
    fn next_stop() -> Move {
        Move {
            to: 2,
            opening: 40,
            closing: 90,
            load: 4,
            service: 10,
            travel: 20,
            capacity: 12,
        }
    }

    #[test]
    fn time_keeps_the_window(rt: HostRuntime) {
        let by = next_stop();
        assert_eq!(rt; Time.step(6, by), Some(40), "waits for the opening");
        assert_eq!(rt; Time.step(11, by), Some(41), "no wait after the opening");
        assert_eq!(rt; Time.step(60, by), Some(90), "at the closing");
        assert_eq!(rt; Time.step(61, by), None, "one after the closing");
        assert_eq!(rt; Time.step(u32::MAX, by), None, "past every minute");
        assert_eq!(rt; Time.start(6), 6, "the depot opens at 6");
    }

    #[test]
    fn load_keeps_the_capacity(rt: HostRuntime) {
        let by = next_stop();
        assert_eq!(rt; Load.start(6), 0, "an empty van, whatever the opening");
        assert_eq!(rt; Load.step(0, by), Some(4), "the first load");
        assert_eq!(rt; Load.step(8, by), Some(12), "at the capacity");
        assert_eq!(rt; Load.step(9, by), None, "one above the capacity");
        assert_eq!(rt; Load.step(u32::MAX, by), None, "past every load");
    }

    #[test]
    fn corners_keep_their_range(rt: HostRuntime) {
        assert_eq!(rt; Time.read(&[0]), Some(0));
        assert_eq!(rt; Time.read(&[60_000]), Some(60_000));
        assert_eq!(rt; Time.read(&[60_001]), None);
        assert_eq!(rt; Load.read(&[10_000]), Some(10_000));
        assert_eq!(rt; Load.read(&[10_001]), None);
        assert_eq!(rt; Load.read(&[u64::MAX]), None);
        assert_eq!(rt; Load.read(&[]), None, "no word");
        assert_eq!(rt; Load.read(&[1, 2]), None, "two words");
    }

    #[test]
    fn a_pair_needs_both(rt: HostRuntime) -> Result<(), Fail> {
        let by = next_stop();
        let pair = Pair {
            first: Time,
            second: Load,
        };
        let Some(there) = pair.step(
            Both {
                first: 60,
                second: 8,
            },
            by,
        ) else {
            return Err(Fail::new("a step in time and light enough"));
        };
        assert_eq!(rt; there.first, 90);
        assert_eq!(rt; there.second, 12);
        assert!(rt;
            pair.step(
                Both {
                    first: 61,
                    second: 8,
                },
                by,
            )
            .is_none(),
            "late"
        );
        assert!(rt;
            pair.step(
                Both {
                    first: 60,
                    second: 9,
                },
                by,
            )
            .is_none(),
            "too full"
        );
        assert!(rt;
            pair.at_most(
                there,
                Both {
                    first: 90,
                    second: 12,
                },
            ),
            "equal"
        );
        assert!(rt;
            !pair.at_most(
                there,
                Both {
                    first: 91,
                    second: 11,
                },
            ),
            "only earlier"
        );
        assert!(rt;
            !pair.at_most(
                there,
                Both {
                    first: 89,
                    second: 13,
                },
            ),
            "only lighter"
        );
        Ok(())
    }

    #[test]
    fn a_pair_of_pairs_reads_in_order(rt: HostRuntime) -> Result<(), Fail> {
        let pair = Pair {
            first: Time,
            second: Load,
        };
        let pairs = Pair {
            first: pair,
            second: Time,
        };
        assert_eq!(rt; pairs.words(), 3);
        let Some(corner) = pairs.read(&[20, 10_000, 60_000]) else {
            return Err(Fail::new("three words within their ranges"));
        };
        assert_eq!(rt; corner.first.first, 20);
        assert_eq!(rt; corner.first.second, 10_000);
        assert_eq!(rt; corner.second, 60_000);
        assert!(rt;
            pairs.read(&[20, 10_001, 30]).is_none(),
            "a load above its range"
        );
        assert!(rt; pairs.read(&[20, 30]).is_none(), "a word too few");
        assert!(rt; pairs.read(&[20, 30, 40, 50]).is_none(), "a word too many");
        Ok(())
    }
}
