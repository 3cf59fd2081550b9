//! What holds of every list of what is visible.

ghost use Rattle.vd_regions.specs.Laws.{ListsWhatIsVisible, ListsVisibleInOrder, ListsWhatIsSelected, ListsSelectedInOrder};

/// `visible_in` lists exactly what is visible in a region under a name, in the order in which it was entered.
pub fn visible_is_listed()
    ensures all { ListsWhatIsVisible }
    ensures in_order { ListsVisibleInOrder }
{}

/// `selected_in_order` lists exactly what a selected name means, in the order in which it was entered.
pub fn selected_is_listed()
    ensures all { ListsWhatIsSelected }
    ensures in_order { ListsSelectedInOrder }
{}
