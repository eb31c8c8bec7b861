//! What is left in the rings at the end.
ghost use Rattle.std.specs.Prelude.{◌≡◌, length, map};
ghost use Rattle.rw_exchange.specs.Ports.{entry};

use std::marker::Model;

/// The letters, of type `T`, that were left in the rings of an opening, oldest first, by sender and receiver.
///
/// A contract sees a list for each sender, which has a list of letters for each receiver.
#[derive(Drop)]
pub struct Left<T> {
    lists: Vec<Vec<Vec<T>>>,
}

impl<T> Model for Left<T> {
    ghost use Rattle.std.specs.Prelude.{List, map};

    ghost Value = { List (List (List T)) };

    ghost view = { λ l. map (λ row. map (λ list. list.items) row.items) l.lists.items };
}

impl<T: Drop> Left<T> {
    // The lists by sender and receiver.
    pub(crate) fn of(lists: Vec<Vec<Vec<T>>>) -> Left<T>
        ensures { result ≡ map (λ row. map (λ list. list.items) row.items) lists.items }
    {
        Left { lists }
    }

    /// How many workers the rings were for. Takes no memory.
    pub fn workers(&self) -> usize
        ensures count { result ≡ length self.now }
    {
        self.lists.len()
    }

    /// The letters that were left on the way from one worker to another, oldest first; none where one of the two does
    /// not exist. Takes no memory.
    pub fn between(&self, from: usize, to: usize) -> &[T]
        ensures letters { result.now ≡ entry self.now from to }
    {
        let Some(row) = self.lists.get(from) else {
            return &[];
        };
        let Some(list) = row.get(to) else {
            return &[];
        };
        list.as_slice()
    }

    /// All lists, by sender and then by receiver. Takes no memory.
    pub fn into_lists(self) -> Vec<Vec<Vec<T>>>
        ensures lists { map (λ row. map (λ list. list.items) row.items) result.items ≡ self }
    {
        let Left { lists } = self;
        lists
    }
}
