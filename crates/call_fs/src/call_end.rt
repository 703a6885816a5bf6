//! What becomes of a call of any number.

use crate::pipes::NewPipe;
use crate::transfers::Transfer;
use sn_base::Boxed;

/// What becomes of a call: what `kernel_calls` has, and so are all that are refused or wait; or it replies, and bytes
/// are to be moved; or it makes a pipe, and replies 0.
#[derive(Drop)]
pub enum CallEnd {
    Of(kernel_calls::Called),
    Moves { reply: i64, transfer: Transfer },
    MakesPipe(Boxed<NewPipe>),
}
