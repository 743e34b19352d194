/// This many messages fill a journal: after them no step begins. So numbers of messages stay far
/// below the greatest of their type, whatever a step sends.
pub const FULL_AT: u32 = 990_000;
