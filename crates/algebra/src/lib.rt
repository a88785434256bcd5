// The linear algebra that elimination rests on: theory alone. Each function's contract is a theorem, over every lawful field.
#![tactic(auto)]

ghost use Rattle.algebra.specs.Theorems.{OneForm, SeenRows, OneOldest, NothingLeft, DeterminedRows, PacketInRow, SomeContents, EmptyForm, SameForm, InsertedForm, InsertedSeen, JoinedForm, SymbolLeft, NoContents, AcceptedFrames};

// Frames have one reduced form.
pub fn one_form()
    ensures { OneForm }
{}

// The row with lead m is there exactly where packet m is seen.
pub fn seen_rows()
    ensures { SeenRows }
{}

// Of the first packets either all are seen, or one is the oldest unseen.
pub fn one_oldest()
    ensures { OneOldest }
{}

// A frame is in the span exactly where nothing is left of it by the rows.
pub fn nothing_left()
    ensures { NothingLeft }
{}

// A packet is determined exactly where its row has no other coefficient.
pub fn determined_rows()
    ensures { DeterminedRows }
{}

// And then the symbols of that row are the packet, in all contents that agree with the frames.
pub fn packet_in_row()
    ensures { PacketInRow }
{}

// Frames that have a reduced form leave some contents.
pub fn some_contents()
    ensures { SomeContents }
{}

// Rows of zeros are the reduced form of no frames.
pub fn empty_form()
    ensures { EmptyForm }
{}

// A frame of which nothing is left leaves the reduced form as it is.
pub fn same_form()
    ensures { SameForm }
{}

// A frame of which a coefficient is left puts in one row, and is then in the reduced form.
pub fn inserted_form()
    ensures { InsertedForm }
{}

// By such a frame one packet becomes seen, and no other.
pub fn inserted_seen()
    ensures { InsertedSeen }
{}

// The reduced form of the rows and one frame more is that of the frames and one frame more.
pub fn joined_form()
    ensures { JoinedForm }
{}

// A frame of which a symbol is left and no coefficient conflicts with the frames.
pub fn symbol_left()
    ensures { SymbolLeft }
{}

// No contents agree with frames in conflict.
pub fn no_contents()
    ensures { NoContents }
{}

// A frame that agrees with some contents, as all before it do, leaves no symbol without a coefficient.
pub fn accepted_frames()
    ensures { AcceptedFrames }
{}
