//! The line that says an answer, without its line feed.

use crate::status::{PortFault, Refusal, Status};
use std::fmt;

impl fmt::Display for Refusal {
    fn fmt<W: fmt::Write>(&self, f: &mut fmt::Formatter<W>) -> fmt::Result {
        match *self {
            Refusal::Config { line, code } => write!(f, "config line {line} code {code}"),
            Refusal::Class { given, classes } => write!(f, "class {given} of {classes}"),
            Refusal::Volume { port, offset, code } => {
                write!(f, "volume {port} offset {offset} code {code}")
            }
            Refusal::Load { volume, item, code } => {
                write!(f, "load {volume} item {item} code {code}")
            }
            Refusal::TooLong { port } => write!(f, "long port {port}"),
            Refusal::Release { line, code } => write!(f, "release line {line} code {code}"),
            Refusal::Store { length } => write!(f, "store length {length}"),
        }
    }
}

impl fmt::Display for PortFault {
    fn fmt<W: fmt::Write>(&self, f: &mut fmt::Formatter<W>) -> fmt::Result {
        match *self {
            PortFault::Read { port } => write!(f, "read port {port}"),
            PortFault::Write { port } => write!(f, "write port {port}"),
            PortFault::Disk => f.write_str("disk"),
        }
    }
}

impl fmt::Display for Status {
    fn fmt<W: fmt::Write>(&self, f: &mut fmt::Formatter<W>) -> fmt::Result {
        match *self {
            Status::Done => f.write_str("done"),
            Status::Refused(why) => write!(f, "refused {why}"),
            Status::Usage { kind } => write!(f, "usage kind {kind}"),
            Status::HostFault(fault) => write!(f, "fault {fault}"),
            Status::Unfinished => f.write_str("unfinished"),
            Status::NoMemory => f.write_str("no memory"),
        }
    }
}
