// The block of a function literal, handed in.
ghost use Rattle.std.specs.Prelude.{◌≡◌, ℕ, true, List, ◌++◌, OnOk, OnErr};
ghost use Rattle.go_tree.specs.declared.token.Token.{Token};
ghost use Rattle.go_parse_x.specs.Answers.{IsBlockRead, IsReady};
ghost use Rattle.go_parse_x.specs.Pieces.{IsKept};

use crate::cursor::Cursor;
use crate::opened::add;
use crate::pending::Pending;
use go_base::NoMemory;
use go_tree::Node;

impl Pending {
    /// Puts the block that is awaited in its place, with the cursor that answered Block, from which the
    /// caller has read it. After want of memory the block is still awaited, and all is as before.
    pub fn give(&mut self, cursor: &Cursor, block: Node) -> Result<(), NoMemory>
        requires { self.old.awaits ≡ true }
        ensures ready { OnOk result ((front : List Token) (low : ℕ) (read : IsBlockRead cursor.now self.old front low block) →
            IsReady cursor.now self.new (front ++ read.tokens) low) }
        ensures kept { OnErr result (IsKept self.old self.new) }
        ensures piece { (self.new.reading ≡ self.old.reading) × (self.new.free ≡ self.old.free) }
    {
        if !self.heights.has_room() {
            return Err(NoMemory);
        }
        add(&mut self.opened, block)?;
        self.heights.block();
        // the block that is awaited is the next that is to be read
        let Some(_) = self.todo.pop() else {
            return Ok(());
        };
        self.last = cursor.at;
        self.awaits = false;
        Ok(())
    }
}
