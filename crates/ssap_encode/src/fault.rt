/// Why something could not be written out.
#[derive(Clone, Copy, Debug, PartialEq, Eq)]
pub enum EncodeFault {
    /// The sink failed. Its own count of faults rose.
    WriteFault,

    /// The system gave no memory.
    NoMemory,
}
