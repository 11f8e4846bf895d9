/// One drive along an arc, as a measure sees it: flat, since the laws of a measure speak of each number.
#[derive(Clone, Copy)]
pub struct Move {
    // The place driven to, its window and its load.
    pub to: u8,
    pub opening: u32,
    pub closing: u32,
    pub load: u32,
    // The service at the place left, 0 at the depot.
    pub service: u32,
    pub travel: u32,
    pub capacity: u32,
}
