//! The laws of sorted lists of rows.

ghost use Rattle.pipe_rows.specs.Laws.{SortedIsInOrder, OnlySortedList, SameRowsSortAlike};

/// The law of sorting: the sorted list is the one list of the same rows in which no row is before its predecessor.
pub fn sorted_lists()
    ensures is_one { SortedIsInOrder }
    ensures the_only { OnlySortedList }
{}

/// Lists with the same rows, as bags, sort to one list.
pub fn same_rows_sort_alike()
    ensures { SameRowsSortAlike }
{}
