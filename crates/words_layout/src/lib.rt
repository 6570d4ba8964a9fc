//! The words of the kernel's tables: their places, their spellings, and the operations on them.
#![tactic(auto)]

mod address;
mod coding;
mod laws;
mod limits;
mod op;
mod plain;
mod recording;
mod segment;

pub use address::{
    Addr, class_of, component_addr, console_addr, entry_addr, finished_addr, frame_tenant_addr,
    frame_word_addr, home_addr, page_tenant_addr, page_word_addr, seg_finished_addr,
    seg_started_addr, seg_ticket_addr, sequencer_addr, serial_addr, started_addr, ticket_addr,
    writes_addr,
};
pub use coding::{Alias, Home, pack_alias, pack_home, unpack_alias, unpack_home};
pub use laws::{address_laws, naming_laws, spelling_laws};
pub use limits::{
    CLASS_LIMIT, CLASS_WORDS, ENTRY_COUNT, FRAME_LIMIT, PAGE_LIMIT, SERIAL_LIMIT, SIZE_LIMIT,
};
pub use op::{Event, Op, WordPort};
pub use plain::PlainWords;
pub use recording::RecordingWords;
pub use segment::{SegId, seg_number};
