//! An image that is written record by record, into room that was taken before.

ghost use Rattle.std.specs.Prelude.{◌≡◌, ◌≤◌, ◌<◌, ◌++◌, [], length, option_map, IfOk, ◌*◌};
ghost use Rattle.volume_image.specs.Written.{record_bytes, front};
ghost use Rattle.volume_image.specs.Images.{largest, room, IsMadeFor};
ghost use Rattle.volume_image.specs.declared.head.Format.TheVariants.{Two};
ghost use Rattle.std.specs.List.{flat_map};
ghost use Rattle.volume_image.specs.Written.{class_bytes};
ghost use Rattle.labels.specs.Label.{class_at};

use crate::writing::{Fields, put_fields, put_front};
use labels::ClassTable;
use rings::Brackets;
use std::alloc::{AllocError, Global};
use std::marker::Model;
use words_layout::SegId;

/// An image in the making. Contracts see its bytes, and how many more it has room for.
#[derive(Drop)]
pub struct Image {
    bytes: Vec<u8>,
}

impl Model for Image {
    ghost use Rattle.std.specs.Prelude.{◌-◌, vec_len, vec_capacity};
    ghost use Rattle.volume_image.specs.Images.{Drawn};

    ghost Value = { Drawn };

    ghost view = { λ i. record { bytes = i.bytes.items; spare = vec_capacity i.bytes - vec_len i.bytes } };
}

/// How many bytes a class takes.
fn class_size(table: &ClassTable, class: u8) -> usize
    requires { class < length table.now }
    ensures size { result ≡ length (class_bytes Two (class_at table.now class)) }
    ensures few { result ≤ 27 }
{
    table.name_law(class);
    11 + table.name(class).len()
}

/// How many bytes the classes take.
fn classes_size(table: &ClassTable) -> usize
    ensures size { result ≡ length (flat_map (class_bytes Two) table.now) }
    ensures few { result ≤ 27 * length table.now }
{
    let mut size = 0;
    for class in 0..table.count() {
        size += class_size(table, class);
    }
    size
}

/// How long an image of the table may get.
#[tactic(auto, using(crate::proofs::Counting::front_size))]
fn largest(table: &ClassTable) -> usize
    ensures { result ≡ largest table.now }
{
    table.table_law();
    let classes = usize::from(table.count());
    11 + classes_size(table) + 523 * (64 * classes)
}

impl Image {
    /// An empty image with room for each image of the table.
    pub fn new(alloc: Global, table: &ClassTable) -> Result<Image, AllocError>
        ensures empty { IfOk result (λ i. i.bytes ≡ []) }
        ensures room { IfOk result (λ i. IsMadeFor table.now i) }
    {
        Ok(Image {
            bytes: Vec::with_capacity(alloc, largest(table))?,
        })
    }

    /// Empties it, and puts there all that stands before the first of so many records. It was made for that table.
    pub fn start(&mut self, table: &ClassTable, records: u16)
        requires { IsMadeFor table.now self.old }
        ensures bytes { self.new.bytes ≡ front table.now records }
        ensures room { room self.old ≤ room self.new }
    {
        self.bytes.clear();
        match put_front(&mut self.bytes, table, records) {
            Ok(()) => {}
            Err(_) => unreachable!(),
        }
    }

    /// Appends a record, for which there is room.
    pub fn add(
        &mut self,
        seg: SegId,
        class: u8,
        brackets: Brackets,
        size: u8,
        mentor: SegId,
        entry: u8,
        kept: Option<&[u64]>,
    )
        requires { length (record_bytes (record { seg = seg; class = class; brackets = brackets; size = size; mentor = mentor; entry = entry; kept = option_map (λ w. w.now) kept })) ≤ self.old.spare }
        ensures bytes { self.new.bytes ≡ self.old.bytes ++ record_bytes (record { seg = seg; class = class; brackets = brackets; size = size; mentor = mentor; entry = entry; kept = option_map (λ w. w.now) kept.entry }) }
        ensures room { room self.old ≤ room self.new }
    {
        let fields = Fields {
            seg,
            class,
            brackets,
            size,
            mentor,
            entry,
        };
        match put_fields(&mut self.bytes, fields, kept) {
            Ok(()) => {}
            Err(_) => unreachable!(),
        }
    }

    /// What it holds.
    pub fn bytes(&self) -> &[u8]
        ensures { result.now ≡ self.now.bytes }
    {
        self.bytes.as_slice()
    }
}
