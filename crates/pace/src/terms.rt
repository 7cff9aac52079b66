// The terms of a machine. Every value that fits the widths is allowed here.

#[derive(Clone, Copy, Debug, Default)]
pub struct Terms {
    // that one block takes
    pub ticks: u16,
    // blocks that are sent together
    pub lot: u16,
    // ticks that the machine is busy before its first block
    pub backlog: u32,
}
