//! Stacks of frames.

ghost use Rattle.std.specs.Prelude.{◌≡◌, [], ◌∷◌, ◌++◌, IfNone, IfSome, OnOk};

use crate::frames::Frame;
use std::alloc::{AllocError, Global};
use std::marker::Model;
use std::mem;

/// The frames of a conversation, the topmost last. One frame alone takes no memory: so a conversion
/// that asks nothing takes none for its frames.
#[derive(Drop)]
pub struct Stack {
    below: Vec<Frame>,
    top: Option<Frame>,
}

impl Model for Stack {
    ghost use Rattle.std.specs.Coded.{codes};
    ghost use Rattle.std.specs.Prelude.{List, ◌++◌, option_to_list};
    ghost use Rattle.widl_idl.specs.contracts.types.IdlType as types;
    ghost use Rattle.widl_value.specs.contracts.idl_value.IdlValue as values;
    ghost use Rattle.widl_convert.specs.declared.frames.Frame as TheFrame;

    ghost Value = { List TheFrame.Frame };

    ghost view = { λ s. s.below.items ++ option_to_list s.top };

    ghost coded = { Prim.hlevel (codes, types.the_row.coded, values.the_row.coded) };
}

impl Stack {
    /// No frames.
    pub(crate) fn new(alloc: Global) -> Stack
        ensures { result ≡ [] }
    {
        Stack {
            below: Vec::new(alloc),
            top: None,
        }
    }

    /// Puts a frame on the others.
    ///
    /// # Errors
    ///
    /// `AllocError` where there is no memory.
    pub(crate) fn push(&mut self, frame: Frame) -> Result<(), AllocError>
        ensures { OnOk result (self.new ≡ self.old ++ frame ∷ []) }
    {
        match mem::replace(&mut self.top, Some(frame)) {
            None => Ok(()),
            Some(former) => {
                self.below.push(former)?;
                Ok(())
            }
        }
    }

    /// Takes the topmost frame.
    pub(crate) fn pop(&mut self) -> Option<Frame>
        ensures some { IfSome result (λ frame. self.old ≡ self.new ++ frame ∷ []) }
        ensures none { IfNone result (self.old ≡ []) }
    {
        match mem::replace(&mut self.top, None) {
            None => self.below.pop(),
            Some(frame) => Some(frame),
        }
    }
}
