// The cells of a row, one after another: each is linked to the next.
ghost use Rattle.std.specs.Prelude.{List, ℕ, length};
ghost use Rattle.std.specs.Iterator.{YieldsFirst, item_count};

use std::marker::Model;

#[derive(Drop)]
pub(super) struct Cells<'a> {
    pub(super) next: &'a [u8; 256],
    pub(super) cell: u8,
    pub(super) left: u16,
}

// Clauses see the cells that are left, in order.
impl<'a> Model for Cells<'a> {
    ghost use Rattle.std.specs.Prelude.{List, ℕ};
    ghost use Rattle.shelf.specs.Links.{run};

    ghost Value = { List ℕ };

    ghost view = { λ cells. run cells.next.now cells.cell cells.left };
}

impl<'a> Iterator for Cells<'a> {
    type Item = usize;

    ghost next_gives = { YieldsFirst (λ left. left) };

    ghost remaining = { item_count (λ left. left) };

    fn next(&mut self) -> Option<usize> {
        self.left = self.left.checked_sub(1)?;
        let cell = usize::from(self.cell);
        self.cell = self.next[cell];
        Some(cell)
    }
}
