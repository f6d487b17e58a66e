// The laws that tie a table to the channels as the standard sees them, and those to what is sent.
ghost use Rattle.std.specs.Prelude.{◌≡◌, ◌<◌, ◌^◌, ◌++◌, ◌∷◌, [], ℕ, List, Bool, Some, None};
ghost use Rattle.std.specs.Prelude.{true, false, map, take};
ghost use Rattle.ssh_link.specs.Frames.{Frame};
ghost use Rattle.ssh_link.specs.declared.link.TraceEntry.{TraceEntry};
ghost use Rattle.ssh_link.specs.declared.link.TraceEntry.TheVariants.{Sent};
ghost use Rattle.ssh_channels.specs.Layout.{on_channel};
ghost use Rattle.ssh_channels.specs.Numbers as numbers;
ghost use Rattle.ssh_channels.specs.Table.{Table};
ghost use Rattle.ssh_channels.specs.declared.params.ChannelParams.{ChannelParams};
ghost use Rattle.ssh_channels.specs.Calls.{Op, Insert, op, insert_with, hand_on, handed};
ghost use Rattle.ssh_channels.specs.Paths.{answer};
ghost use Rattle.ssh_channels.specs.Entry.{Entry, Sound, IsDue, IsDeferred, accepted, due, opened};
ghost use Rattle.ssh_channels.specs.Lines as lines;
ghost use Rattle.ssh_channels.specs.Lines.{Left, Lines, no_lines, find, last_left, write};
ghost use Rattle.ssh_channels.specs.Stands.{Stands};
ghost use Rattle.ssh_channels.specs.Sent.{Each, Ledgered, IsQuiet, Sends, AllRefuse, farewell};
ghost use Rattle.ssh_channels.specs.Sent.{IsUnopened, StartsWith, is_opening, is_close, since};
ghost use Rattle.ssh_channels.specs.Sent.{RepliesInOrder, StartsInOrder};
ghost use Rattle.ssh_channels.specs.Does.{IsMeant, IsFair, is_idle, does, answers, entry_of};

/// A table keeps the channels of a connection as the standard sees them (RFC 4254 section 5): an
/// empty table keeps none, each call does to the channels what the standard says and answers what
/// it says of them, one that comes with its frame comes so, and what is handed on are the frames
/// that were written.
pub fn table_keeps_channels()
    ensures empty { Stands numbers.empty no_lines }
    ensures stands { (o : Op) → (t : Table) → (l : Lines) → IsMeant o → Stands t l →
        Stands (op o t) (does o l) }
    ensures comes { (frame : Frame) → (line : ChannelParams) → (t : Table) → (l : Lines) →
        IsMeant (Insert line) → 0 < line.recipient_maximum_packet_size → Stands t l →
        Stands (insert_with frame line t) (lines.adds_with frame (entry_of line) l) }
    ensures answers { (o : Op) → (t : Table) → (l : Lines) → Stands t l → answer o t ≡ answers o l }
    ensures hands_on { (is_rekeying : Bool) → (t : Table) → (l : Lines) → Stands t l →
        Stands (hand_on is_rekeying t) (lines.hands_on is_rekeying l) }
    ensures handed { (is_rekeying : Bool) → (t : Table) → (l : Lines) → Stands t l →
        handed is_rekeying t ≡ lines.handed is_rekeying l }
{}

/// What was sent on a channel is what was framed of the bytes that it accepted, and on one that
/// left, what had been sent when it did, with its CLOSE behind. Each call keeps that, after each
/// trace of a connection; so does an open of the peer's that is accepted with its CONFIRMATION, at
/// once or later, an open of this side's that goes out, what is handed on, and what is on no
/// channel. So at every
/// moment of the trace, what had been sent on a channel was the start of it.
pub fn sent_is_framed()
    ensures empty { Ledgered no_lines [] }
    ensures calls { (o : Op) → (l : Lines) → (past : List TraceEntry) → IsFair o l →
        Ledgered l past → Ledgered (does o l) past }
    ensures opens { (number peer window room limit packet : ℕ) → (payload : List ℕ) →
        (l : Lines) → (past : List TraceEntry) → 0 < limit → window < 2 ^ 32 →
        is_opening payload ≡ true → Ledgered l past →
        Ledgered (lines.adds_with (on_channel number payload)
        (opened number peer window room limit packet) l) past }
    ensures asks { (n room packet : ℕ) → (payload : List ℕ) → (l : Lines) →
        (past : List TraceEntry) → is_opening payload ≡ true → lines.next_number l ≡ Some n →
        Ledgered l past →
        Ledgered (write (on_channel n payload ∷ []) (lines.asks_next room packet l)) past }
    ensures accepts { (n peer window room limit packet : ℕ) → (payload : List ℕ) → (l : Lines) →
        (past : List TraceEntry) → 0 < limit → window < 2 ^ 32 → is_opening payload ≡ true →
        lines.next_number l ≡ Some n → Ledgered l past →
        Ledgered (write (on_channel n payload ∷ [])
        (lines.accepts_next peer window room limit packet l)) past }
    ensures hands_on { (is_rekeying : Bool) → (l : Lines) → (past : List TraceEntry) →
        Ledgered l past →
        Ledgered (lines.hands_on is_rekeying l) (past ++ map Sent (lines.handed is_rekeying l)) }
    ensures starts { (n : ℕ) → (l : Lines) → (e : Entry) → (seen rest : List TraceEntry) →
        find n l.entries ≡ Some e → IsUnopened n (rest ++ map Sent l.written) →
        Ledgered l (seen ++ rest) → StartsWith e (take e.framed (accepted e)) (since n seen) }
    ensures quiet { (l : Lines) → (past more : List TraceEntry) → IsQuiet more → Ledgered l past →
        Ledgered l (past ++ more) }
{}

/// Where no exchange runs, each channel has framed the first min(accepted, granted) bytes that it
/// accepted, so these were sent: each call keeps that, and all channels going on, as at the end of
/// an exchange, brings it about. An EOF or a CLOSE that was accepted and not sent waits behind data
/// at every moment.
pub fn framed_is_due()
    ensures sound { (l : Lines) → (past : List TraceEntry) → Ledgered l past → Each Sound l }
    ensures calls { (o : Op) → (l : Lines) → is_idle o ≡ true → Each Sound l → Each IsDue l →
        Each IsDue (does o l) }
    ensures all { (l : Lines) → Each IsDue (lines.all_go_on l) }
    ensures sent { (n : ℕ) → (l : Lines) → (e : Entry) → (past : List TraceEntry) →
        find n l.entries ≡ Some e → IsDue e → Ledgered l past →
        Sends e (due e) (since n (past ++ map Sent l.written)) }
    ensures deferred { (t : Table) → (l : Lines) → Stands t l → Each IsDeferred l }
{}

/// A CLOSE is the last that was sent on a number until that is opened again: the channel is gone,
/// and nothing follows but refusals of opens. Before one that does not answer the peer's, all
/// accepted bytes were sent.
pub fn close_is_last()
    ensures last { (n : ℕ) → (l : Lines) → (past : List TraceEntry) → (front back : List Frame) →
        (close : Frame) → Ledgered l past → is_close close.payload ≡ true →
        since n (past ++ map Sent l.written) ≡ front ++ close ∷ back →
        (find n l.entries ≡ None) × AllRefuse back }
    ensures whole { (n : ℕ) → (l : Lines) → (past : List TraceEntry) → (gone : Left) →
        Ledgered l past → find n l.entries ≡ None → last_left n l.left ≡ Some gone →
        gone.by_peer ≡ false →
        (before after : List Frame)
        × (since n (past ++ map Sent l.written) ≡ before ++ (farewell gone.entry ++ after))
        × Sends gone.entry (accepted gone.entry) before }
{}

/// Replies go out in the order of the requests (RFC 4254 section 5.4): those that were sent on a
/// channel since it was opened are the replies to its first requests that want one, to each as it
/// was settled, up to the first that is owed. At every moment the first of them had been sent, and
/// on a channel that left those that were ready when it did.
pub fn replies_in_order()
    ensures live { (n : ℕ) → (l : Lines) → (e : Entry) → (past : List TraceEntry) →
        find n l.entries ≡ Some e → Ledgered l past →
        RepliesInOrder e (since n (past ++ map Sent l.written)) }
    ensures starts { (n : ℕ) → (l : Lines) → (e : Entry) → (seen rest : List TraceEntry) →
        find n l.entries ≡ Some e → IsUnopened n (rest ++ map Sent l.written) →
        Ledgered l (seen ++ rest) → StartsInOrder e (since n seen) }
    ensures left { (n : ℕ) → (l : Lines) → (past : List TraceEntry) → (gone : Left) →
        Ledgered l past → find n l.entries ≡ None → last_left n l.left ≡ Some gone →
        (before after : List Frame)
        × (since n (past ++ map Sent l.written) ≡ before ++ (farewell gone.entry ++ after))
        × RepliesInOrder gone.entry before }
{}
