// What is cut from what waits, which number is drawn next, and which channels a call leaves alone.
ghost use Rattle.std.specs.Prelude.{◌≡◌, ◌<◌, ◌-◌, ◌^◌, ℕ, List, Some, take, drop, length, false};
ghost use Rattle.ssh_channels.specs.declared.chunk.Chunk.{Chunk};
ghost use Rattle.ssh_channels.specs.Cut.{cut, left_of, credit_left};
ghost use Rattle.ssh_channels.specs.Entry.{joined};
ghost use Rattle.ssh_channels.specs.Table.{Table, line_at};
ghost use Rattle.ssh_channels.specs.Numbers as numbers;
ghost use Rattle.ssh_channels.specs.Calls.{Op, op};
ghost use Rattle.ssh_channels.specs.Lines as lines;
ghost use Rattle.ssh_channels.specs.Lines.{Lines, find};
ghost use Rattle.ssh_channels.specs.Does.{does};
ghost use Rattle.ssh_channels.specs.Others.{is_about};

/// A credit cuts the first bytes from what waits, as many as it has, and the others stay, each in
/// the message of its kind (RFC 4254 section 5.2). What is left of the credit is what those bytes
/// did not use.
pub fn waiting_is_cut()
    ensures out { (limit credit : ℕ) → (chunks : List Chunk) → 0 < limit →
        joined (cut limit credit chunks) ≡ take credit (joined chunks) }
    ensures stays { (credit : ℕ) → (chunks : List Chunk) →
        joined (left_of credit chunks) ≡ drop credit (joined chunks) }
    ensures credit { (credit : ℕ) → (chunks : List Chunk) →
        credit_left credit chunks ≡ credit - length (joined chunks) }
{}

/// The number that is drawn next is neither live nor pending, and is one of four bytes (RFC 4254
/// section 5.1).
pub fn next_number_is_free()
    ensures table { (t : Table) → (n : ℕ) → numbers.next_number t ≡ Some n →
        numbers.is_taken t n ≡ false }
    ensures channels { (l : Lines) → (n : ℕ) → lines.next_number l ≡ Some n →
        lines.is_taken l n ≡ false }
    ensures small { (t : Table) → (n : ℕ) → numbers.next_number t ≡ Some n → n < 2 ^ 32 }
{}

/// A call leaves every channel as it is that it is not about.
pub fn others_stay()
    ensures table { (n : ℕ) → (o : Op) → (t : Table) →
        is_about n (numbers.next_number t) o ≡ false → line_at n (op o t) ≡ line_at n t }
    ensures channels { (n : ℕ) → (o : Op) → (l : Lines) →
        is_about n (lines.next_number l) o ≡ false →
        find n (does o l).entries ≡ find n l.entries }
{}
