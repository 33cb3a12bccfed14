/// Why there is no room for a frame.
#[derive(Clone, Copy, Debug, PartialEq, Eq)]
pub enum Full {
    /// 256 frames are live.
    Frames,
    /// The caller's stack pointer, which is not in the stack.
    Outside(u32),
    /// The lo of the innermost frame, which the caller's stack pointer is above.
    Crossed(u32),
    /// The callee's stack pointer, which would be below the stack.
    Stack(u32),
}
