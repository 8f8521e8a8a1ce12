//! The things that the report of each refusal needs.
use nms_show::Form;
use std::alloc::Global;

/// The things that the report of each refusal needs.
#[derive(Clone, Copy)]
pub(crate) struct Told<'a> {
    pub(crate) alloc: Global,
    pub(crate) form: Form,
    /// The file, as the call named it.
    pub(crate) file: &'a str,
    /// The file's text.
    pub(crate) text: &'a [u8],
}
