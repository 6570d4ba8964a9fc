//! Names of processes.

ghost use Rattle.std.specs.Prelude.{◌≡◌};

use std::marker::Model;

/// The name of a process: its processor, its class and its slot there.
#[derive(Clone, Copy, Debug, PartialEq, Eq)]
pub struct ProcName {
    pub processor: u8,
    pub class: u8,
    pub slot: u8,
}

impl Model for ProcName {
    ghost use Rattle.class_model.specs.Process.{ProcName as ProcNameValue};

    ghost Value = { ProcNameValue };

    ghost view = { λ n. record { processor = n.processor; class = n.class; slot = n.slot } };

    ghost inverse = { λ v. record { processor = v.processor; class = v.class; slot = v.slot } };
}
