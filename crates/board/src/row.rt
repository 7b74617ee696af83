// A part of a board, as a plain value.
use meaning::Span;
use value::End;

// A span, with what is known of its end in this state.
#[derive(Clone, Copy, Debug, PartialEq, Eq)]
pub struct Row {
    pub span: Span,
    pub end: End,
}
