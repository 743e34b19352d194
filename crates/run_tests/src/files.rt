//! Files that several tests use.

/// Two switches with a link between them; b is the authority.
pub const PAIR: &str = "leaf_rules = 8\ncache = 4\n\
    switch = [{ name = \"a\", ports = [1] }, { name = \"b\", ports = [2], authority = 100 }]\n\
    link = [{ ends = [\"a\", \"b\"] }]\n";

/// A policy without rows.
pub const NO_ROW: &str = "priority,src,dst,sport,dport,proto,action\n";

/// Each packet is dropped.
pub const DROP: &str = "priority,src,dst,sport,dport,proto,action\n\
    100,any,any,any,any,any,drop\n";
