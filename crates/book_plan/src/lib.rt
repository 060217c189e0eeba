// What each call of a book does, as definitions, and the laws of a book that keeps its changes: each function here computes nothing, and
// its contract is a theorem.
#![tactic(auto)]

ghost use Rattle.book_plan.specs.Laws.{ChangeLaw, QueryLaw, TotalLaw};

// A change is refused exactly on its conditions and then leaves the book as it was, or is kept; it never meets a fault.
pub fn changes_are_kept()
    ensures { ChangeLaw }
{}

// A query answers what the changes say of the sheet, and leaves the book.
pub fn queries_answer_the_changes()
    ensures { QueryLaw }
{}

// A total answers what the changes say of the range: the number of its sheets, and their sum in true numbers.
pub fn totals_answer_the_changes()
    ensures { TotalLaw }
{}
