/// The first breach of the flow rules in a function: by address, and at one instruction by the rule's number.
#[derive(Clone, Copy, Debug, Default, PartialEq, Eq)]
pub struct FlowNo {
    /// The rule's number, from 1 for F1 to 9 for F9.
    pub rule: u8,
    /// The instruction's address.
    pub at: u64,
    /// For F1 the depth behind the instruction and, of the instructions that can follow it and have another, the first one's depth by
    /// the table, in bytes; otherwise 0 and 0.
    pub depths: (i64, i64),
}
