// A record of a ledger: an address with its link, and 0 with 0 while it is not in use. No `Option`, since that is the layout of the lent memory.
#[derive(Clone, Copy, PartialEq, Eq, Debug)]
pub struct Record {
    pub address: u16,
    pub link: u16,
}

impl Record {
    // A record that is not in use.
    pub const UNUSED: Record = Record {
        address: 0,
        link: 0,
    };
}
