// A start: a make and the child that it starts.

#[derive(Clone, Copy)]
pub(crate) struct Start {
    pub(crate) make: u32,
    pub(crate) child: u32,
}
