//! What a serializer did not take.

/// A serializer did not take what was sent. It told why, in an error of its own that fills nine words, which each function
/// on the way out would hand on; who asks for a line hears only that there is none.
#[derive(Drop)]
pub(crate) struct Unsent;
