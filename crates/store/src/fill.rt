// Writing words, with zeros behind them.
ghost use Rattle.std.specs.Prelude.{◌≡◌, length};
ghost use Rattle.lists.specs.Fill.{fill_to};

// The row's words, then zeros, as far as there is room.
pub fn fill(room: &mut [u32], row: &[u32])
    ensures { room.new ≡ fill_to (length room.old) 0 row.now }
{
    // A test of the row at each turn: the compiler makes no call of `memmove` of such a loop, which a caller in C would then owe.
    for i in 0..room.len() {
        let Some(word) = row.get(i) else {
            room[i..].fill(0);
            return;
        };
        room[i] = *word;
    }
}
