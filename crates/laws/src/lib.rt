//! Laws of the meaning of templates, in the words of those who write them.
//! Each function stands for a theorem, which its contract names. S is what a sink is in.

#![tactic(auto)]

ghost use Rattle.laws.specs.Order.{ScopesReadInOrder, FaultsEndReading, SinksAreOfferedInOrder};
ghost use Rattle.laws.specs.Faults.{FaultsSayWhere, PiecesSayWhere, NamesAreOnlyReported};
ghost use Rattle.laws.specs.Scope.{OnlyWhatIsFoundCounts, WithsNameTheirValue, WithsHideTheirName, LoopsHideTheirNames, ItemsAreOfTheirTurn, EntriesAreOfTheirTurn, LoopIsOfTheInnermost, LoopsReadEachItem, LoopsReadEachEntry};
ghost use Rattle.laws.specs.Paths.{PathsAreWalkedInOrder, OptionalMattersForTheAbsent, InsertingReplaces, AppendingComesLast};
ghost use Rattle.laws.specs.Forms.{NotSwapsBranches, NoElseIsAnEmptyElse, ParensChangeNothing, FiltersAreCalls, RawTextMayBeCut};
ghost use Rattle.laws.specs.Places.{TemplatesAreRead};
ghost use Rattle.laws.specs.Boundary.{IncludesSeeOut, IncludesWithSeeTheirValue, NothingBehindABoundaryCounts, IncludesWithSeeNothingElse};
ghost use Rattle.laws.specs.Tally.{StatementsLeaveNothing, RepeatingNeedsNoRoom, ExpressionsHaveACost, IfsKeepNothing, WithsKeepTheirValue, OnlyTheRoomLeftCounts};
ghost use Rattle.laws.specs.Depth.{MoreTemplatesMayBeOpen, NoneIsOneTooMany, AsManyAreOpenAsMayBe};
ghost use Rattle.laws.specs.Included.{OnlyIncludedTemplatesCount};
ghost use Rattle.laws.specs.Called.{OnlyNamedCallablesCount};
ghost use Rattle.laws.specs.Renderings.{MoreSupplyRendersTheSame, LoadedValuesOnlyTakeRoom, HigherMaximaRenderTheSame, UnusedTemplatesChangeNothing, FaultsLieInTheirSource};
ghost use Rattle.laws.specs.Truth.{OnlyTheseAreFalse, IndexesFindTheirPart, KeysFindTheirPart, OptionalNeverFaults};
ghost use Rattle.laws.specs.Text.{TextsAreWritten, TextsAreJoined, TextsAreOnePiece, RenderingsAreText, PagesHoldText, ChartHostsAnswerText};
ghost use Rattle.laws.specs.Calls.{RefusedCallsMayBeLeftOut, RemovingTakesBack, LoadingReplaces, AddingHasNoOrder};

// ORDER, AND FAULTS

/// The statements of a template are read one after the other: of any two halves first the one, then the other.
pub fn scopes_read_in_order() -> u8
    ensures { ScopesReadInOrder }
{
    0
}

/// A fault ends a reading: what was read before it is offered, and what stands behind the statement that faults changes nothing.
pub fn faults_end_reading() -> u8
    ensures { FaultsEndReading }
{
    0
}

/// A sink is offered the second of two readings where it took all of the first and the first finished, and nothing more otherwise.
pub fn sinks_are_offered_in_order() -> u8
    ensures { SinksAreOfferedInOrder }
{
    0
}

/// A reading ends in 23, or in another cause from 10 to 26 at a span of a template that was read; never in 24.
pub fn faults_say_where() -> u8
    ensures { FaultsSayWhere }
{
    0
}

/// Each piece names a template that was read, and is raw, or short and at a span.
pub fn pieces_say_where() -> u8
    ensures { PiecesSayWhere }
{
    0
}

/// What a template is called is only reported: under another name the same is read, but for names in pieces and faults.
pub fn names_are_only_reported() -> u8
    ensures { NamesAreOnlyReported }
{
    0
}

// TEXT

/// On a page that is large enough, a reading leaves just its text behind what was there.
pub fn texts_are_written() -> u8
    ensures { TextsAreWritten }
{
    0
}

/// The text of a finished reading is that of its statements, joined.
pub fn texts_are_joined() -> u8
    ensures { TextsAreJoined }
{
    0
}

/// Every lawful sink takes the pieces of a finished reading as it takes their text in one piece.
pub fn texts_are_one_piece<S>() -> u8
    ensures { TextsAreOnePiece S }
{
    0
}

/// Where hosts answer well-formed text, each piece of a sound engine's rendering is well-formed, and so is the text.
pub fn renderings_are_text() -> u8
    ensures { RenderingsAreText }
{
    0
}

/// Then a page of well-formed text holds such text after a rendering, whatever the answer.
pub fn pages_hold_text() -> u8
    ensures { PagesHoldText }
{
    0
}

/// The chart set, the plain formatter and the two value sources answer well-formed text.
pub fn chart_hosts_answer_text() -> u8
    ensures { ChartHostsAnswerText }
{
    0
}

// NAMES

/// What is visible matters only for what variables find: where every variable finds the same, the same is read.
pub fn only_what_is_found_counts() -> u8
    ensures { OnlyWhatIsFoundCounts }
{
    0
}

/// In a with, its name stands for its value, and any other variable finds what it finds outside.
pub fn withs_name_their_value() -> u8
    ensures { WithsNameTheirValue }
{
    0
}

/// A with hides an outer with of the same name throughout its body, whatever stands between them.
pub fn withs_hide_their_name() -> u8
    ensures { WithsHideTheirName }
{
    0
}

/// In a loop, a variable that begins with none of its names, nor with `loop`, finds what it finds outside.
pub fn loops_hide_their_names() -> u8
    ensures { LoopsHideTheirNames }
{
    0
}

/// An item's name, unless it is `loop`, stands for the item of that turn; an optional member that the item lacks is looked for outside.
pub fn items_are_of_their_turn() -> u8
    ensures { ItemsAreOfTheirTurn }
{
    0
}

/// A key's name and a value's name, unless they are `loop` or the same, stand for the key and the value of that turn.
pub fn entries_are_of_their_turn() -> u8
    ensures { EntriesAreOfTheirTurn }
{
    0
}

/// In a loop, `loop` tells of that loop's turn, whatever is visible outside.
pub fn loop_is_of_the_innermost() -> u8
    ensures { LoopIsOfTheInnermost }
{
    0
}

/// A loop over a list reads its body once for each item, in order.
pub fn loops_read_each_item() -> u8
    ensures { LoopsReadEachItem }
{
    0
}

/// A loop over a map reads its body once for each entry, in order.
pub fn loops_read_each_entry() -> u8
    ensures { LoopsReadEachEntry }
{
    0
}

// VALUES

/// A path is walked member by member: first the one half, and from what that finds the other.
pub fn paths_are_walked_in_order() -> u8
    ensures { PathsAreWalkedInOrder }
{
    0
}

/// An optional member finds what a direct one finds, and misses only where the direct one fails.
pub fn optional_matters_for_the_absent() -> u8
    ensures { OptionalMattersForTheAbsent }
{
    0
}

/// A key of a map finds what was put in under it last, and the others find what they found.
pub fn inserting_replaces() -> u8
    ensures { InsertingReplaces }
{
    0
}

/// A part that is appended to a list is the last, and the others stay.
pub fn appending_comes_last() -> u8
    ensures { AppendingComesLast }
{
    0
}

/// False are none, false, 0, both float zeros, and the empty string, list and map, and no other value.
pub fn only_these_are_false() -> u8
    ensures { OnlyTheseAreFalse }
{
    0
}

/// An index of a list finds the part of that number and no other.
pub fn indexes_find_their_part() -> u8
    ensures { IndexesFindTheirPart }
{
    0
}

/// A key of a map finds the part under just that key and no other: keys that differ anywhere are two keys.
pub fn keys_find_their_part() -> u8
    ensures { KeysFindTheirPart }
{
    0
}

/// An optional member never faults by an index of a list or a key of a map.
pub fn optional_never_faults() -> u8
    ensures { OptionalNeverFaults }
{
    0
}

// TWO WAYS TO WRITE

/// An if that says not reads its branches the other way round.
pub fn not_swaps_branches() -> u8
    ensures { NotSwapsBranches }
{
    0
}

/// An if without an else is one with an empty else.
pub fn no_else_is_an_empty_else() -> u8
    ensures { NoElseIsAnEmptyElse }
{
    0
}

/// An expression in parens is as good as what is in them.
pub fn parens_change_nothing() -> u8
    ensures { ParensChangeNothing }
{
    0
}

/// A filter is a call whose first argument is the receiver.
pub fn filters_are_calls() -> u8
    ensures { FiltersAreCalls }
{
    0
}

/// Raw text may be cut in two: the joined pieces are the same.
pub fn raw_text_may_be_cut() -> u8
    ensures { RawTextMayBeCut }
{
    0
}

// INCLUDES

/// A template is read from the place at which it begins.
pub fn templates_are_read() -> u8
    ensures { TemplatesAreRead }
{
    0
}

/// An include reads its template with all that is visible at its place.
pub fn includes_see_out() -> u8
    ensures { IncludesSeeOut }
{
    0
}

/// An include with reads its template with the parts of its value visible, and behind them a boundary.
pub fn includes_with_see_their_value() -> u8
    ensures { IncludesWithSeeTheirValue }
{
    0
}

/// What stands behind a boundary changes nothing that is read.
pub fn nothing_behind_a_boundary_counts() -> u8
    ensures { NothingBehindABoundaryCounts }
{
    0
}

/// An include with that gives the same value reads the same, whatever else is visible at its place.
pub fn includes_with_see_nothing_else() -> u8
    ensures { IncludesWithSeeNothingElse }
{
    0
}

// ROOM

/// What stands behind a statement that finishes is read as it is alone: the statement's charges are freed.
pub fn statements_leave_nothing() -> u8
    ensures { StatementsLeaveNothing }
{
    0
}

/// A statement that finishes does so however often it is repeated, and offers the same each time.
pub fn repeating_needs_no_room() -> u8
    ensures { RepeatingNeedsNoRoom }
{
    0
}

/// An expression adds a cost to what is in use; wherever that has room, it gives the same value for the same cost.
pub fn expressions_have_a_cost() -> u8
    ensures { ExpressionsHaveACost }
{
    0
}

/// An if has freed what its expression cost before it reads a branch.
pub fn ifs_keep_nothing() -> u8
    ensures { IfsKeepNothing }
{
    0
}

/// A with keeps what its value cost in use until its body ends.
pub fn withs_keep_their_value() -> u8
    ensures { WithsKeepTheirValue }
{
    0
}

/// Where as much room is left, or more, the same is read, unless what is read here ends in a full store.
pub fn only_the_room_left_counts() -> u8
    ensures { OnlyTheRoomLeftCounts }
{
    0
}

// DEPTH

/// Where more templates may be open, the same is read, unless what is read here ends with one too many.
pub fn more_templates_may_be_open() -> u8
    ensures { MoreTemplatesMayBeOpen }
{
    0
}

/// No template is read that is one too many: however it were read, the same is read, unless that ends with one too many.
pub fn none_is_one_too_many() -> u8
    ensures { NoneIsOneTooMany }
{
    0
}

/// A template that offers a text and then includes itself offers it once for each that may be open, and ends with one too many.
pub fn as_many_are_open_as_may_be() -> u8
    ensures { AsManyAreOpenAsMayBe }
{
    0
}

// ONLY WHAT IS USED

/// A template depends on those that it includes, and those that they include, and on no others.
pub fn only_included_templates_count() -> u8
    ensures { OnlyIncludedTemplatesCount }
{
    0
}

/// What is read depends on the functions and formatters that it and the held templates name, and on no others.
pub fn only_named_callables_count() -> u8
    ensures { OnlyNamedCallablesCount }
{
    0
}

// RENDERINGS OF AN ENGINE

/// An engine with a larger supply renders the same, unless the rendering ends under the smaller one in a full store.
pub fn more_supply_renders_the_same() -> u8
    ensures { MoreSupplyRendersTheSame }
{
    0
}

/// Where a value source is asked, the loaded value only takes room.
pub fn loaded_values_only_take_room() -> u8
    ensures { LoadedValuesOnlyTakeRoom }
{
    0
}

/// Under a higher maximum of open templates the same is rendered, unless the rendering ends under the lower one with one too many.
pub fn higher_maxima_render_the_same() -> u8
    ensures { HigherMaximaRenderTheSame }
{
    0
}

/// Adding, replacing or removing a template that no other includes changes no rendering of the others.
pub fn unused_templates_change_nothing() -> u8
    ensures { UnusedTemplatesChangeNothing }
{
    0
}

/// A rendering's fault at a span lies in the source of the template that it names, between characters; also where the sink stops.
pub fn faults_lie_in_their_source() -> u8
    ensures { FaultsLieInTheirSource }
{
    0
}

// CALLS OF AN ENGINE

/// A refused call could be left out: all other answers, the engine and the sink are the same.
pub fn refused_calls_may_be_left_out<S>() -> u8
    ensures { RefusedCallsMayBeLeftOut S }
{
    0
}

/// A new name that is added and then removed leaves the engine as it was.
pub fn removing_takes_back() -> u8
    ensures { RemovingTakesBack }
{
    0
}

/// A second loading does what it would have done without the first.
pub fn loading_replaces() -> u8
    ensures { LoadingReplaces }
{
    0
}

/// Two names that differ can be added in either order: whatever is called after them is answered the same.
pub fn adding_has_no_order<S>() -> u8
    ensures { AddingHasNoOrder S }
{
    0
}
