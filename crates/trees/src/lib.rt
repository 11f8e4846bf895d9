//! A tree file: its head, its directory and its records.
#![tactic(auto)]

pub mod faults;
pub mod head;
pub mod kind;
mod numbers;
mod pairs;
pub mod records;

#[cfg(test)]
mod tests {
    use crate::head::read_tree;
    use crate::records::record_at;
    use routing::denials::Denial;
    use std::test::Fail;

    // Three customers, measured by time; one record of 97 bytes at offset 16.
    fn one_record() -> [u8; 113] {
        let mut file = [7; 113];
        file[0..16].copy_from_slice(b"VRPC\x01\x03\x01\x00\x10\x00\x00\x00\x61\x00\x00\x00");
        file
    }

    // The number and the place of a denial; 0 and the count where the file is granted.
    fn told(file: &[u8], customers: u8) -> (u8, usize) {
        match read_tree(file, customers) {
            Ok(head) => (0, head.count as usize),
            Err(fault) => {
                let denial = Denial::from(fault);
                (denial.number, denial.place)
            }
        }
    }

    #[test]
    fn reads_one_record(rt: HostRuntime) -> Result<(), Fail> {
        let file = one_record();
        assert_eq!(rt; told(&file, 3), (0, 1));
        let record = record_at(&file, 0).ok_or("no record 0")?;
        assert_eq!(rt; (record.offset, record.bytes.len()), (16, 97));
        assert!(rt; record_at(&file, 1).is_none(), "one record only");
        Ok(())
    }

    #[test]
    fn denies_mark_head_and_pair(rt: HostRuntime) {
        let file = one_record();
        assert_eq!(rt; told(&file[0..7], 3), (5, 0), "too short for a head");
        assert_eq!(rt; told(&file, 4), (6, 5), "another number of customers");
        assert_eq!(rt; told(&file[0..15], 3), (7, 8), "a pair cut short");
        assert_eq!(rt;
            told(&file[0..112], 3),
            (7, 8),
            "the last record passes the end"
        );
    }
}
