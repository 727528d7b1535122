// A piece that is being read.
ghost use Rattle.std.specs.Prelude.{◌≡◌, ◌-◌, true, List, OnOk};
ghost use Rattle.go_tree.specs.declared.token.Token.{Token};
ghost use Rattle.go_tree.specs.Height.{height_of};
ghost use Rattle.go_parse_x.specs.Machine.Heights.{Counts};
ghost use Rattle.go_parse_x.specs.Pieces.{IsNew, open_view, view_of};
ghost use Rattle.go_parse_x.specs.declared.reading.Target.TheVariants.{File as TheFile};
ghost use Rattle.go_parse_x.specs.Targets.{hands, piece, reads};

use crate::heights::Heights;
use crate::opened::OpenNode;
use crate::place::Place;
use crate::reading::{Reading, Target};
use go_base::NoMemory;
use std::alloc::Global;

/// A piece of which nothing or a part is read: what is still to be read, and its open nodes.
#[derive(Debug, Drop)]
pub struct Pending {
    pub(crate) reading: Target,
    pub(crate) free: usize,
    pub(crate) begun: bool,
    pub(crate) awaits: bool,
    // what is still to be read, the next last
    pub(crate) todo: Vec<Place>,
    pub(crate) opened: Vec<OpenNode>,
    // where the last token ended
    pub(crate) last: usize,
    pub(crate) heights: Heights,
}

impl Pending {
    /// A piece of which nothing is read yet. Its heights count its own tokens from 0, and `free` is
    /// the greatest height that they may have.
    pub fn new(alloc: Global, reading: Reading, free: usize) -> Pending
        ensures anew { IsNew result }
        ensures piece { (piece result.reading ≡ reads reading) × (hands result.reading ≡ true) × (result.free ≡ free) }
    {
        Pending {
            reading: Target::Piece(reading),
            free,
            begun: false,
            awaits: false,
            todo: Vec::new(alloc),
            opened: Vec::new(alloc),
            last: 0,
            heights: Heights::new(alloc),
        }
    }

    /// A whole file of which nothing is read yet.
    pub fn of_file(alloc: Global, free: usize) -> Pending
        ensures anew { IsNew result }
        ensures file { (result.reading ≡ TheFile) × (result.free ≡ free) }
    {
        Pending {
            reading: Target::File,
            free,
            begun: false,
            awaits: false,
            todo: Vec::new(alloc),
            opened: Vec::new(alloc),
            last: 0,
            heights: Heights::new(alloc),
        }
    }

    /// The same as new.
    pub(crate) fn renew(&mut self, alloc: Global)
        ensures anew { IsNew self.new }
        ensures piece { (self.new.reading ≡ self.old.reading) × (self.new.free ≡ self.old.free) }
    {
        self.begun = false;
        self.awaits = false;
        self.heights = Heights::new(alloc);
    }

    /// The height that is left for the block that is awaited.
    pub fn free(&self) -> usize
        requires { self.now.awaits ≡ true }
        ensures { (front : List Token) → Counts self.now.heights front → result ≡ self.now.free - height_of front }
    {
        self.free.saturating_sub(self.heights.total())
    }

    /// Stands before the first token, if nothing is read yet.
    pub(crate) fn begin(&mut self, alloc: Global) -> Result<(), NoMemory>
        ensures view { OnOk result (open_view self.new ≡ view_of self.old) }
        ensures begun { OnOk result (self.new.begun ≡ true) }
        ensures others { (self.new.awaits ≡ self.old.awaits) × (self.new.reading ≡ self.old.reading) × (self.new.free ≡ self.old.free) }
    {
        if self.begun {
            return Ok(());
        }
        self.todo.clear();
        self.opened.clear();
        self.todo.push(Place::start(self.reading.production()))?;
        self.opened.push(OpenNode {
            start: 0,
            parts: Vec::new(alloc),
        })?;
        self.last = 0;
        self.begun = true;
        Ok(())
    }
}
