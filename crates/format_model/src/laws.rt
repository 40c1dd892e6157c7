//! Laws of the table of formats and of trees. Each function does nothing: its contract is the law.

ghost use Rattle.format_model.specs.Laws.{
  BitsCountDigits,
  DescribedPartsAreHeld,
  EachStoredElementOnce,
  ListsTheStoredValues,
  NoIndexStandsTwice,
  OrderedLevelsRise,
  SearchesFindTheContent,
  StoredElementsHaveTheirValues,
  TheTestAgreesWithTheList,
};

/// The weight of a search by halving is the number of binary digits of the count.
pub fn bits_count_digits()
    ensures { BitsCountDigits }
{}

/// A tree that describes a part has each stored element once, with its value, and searches find exactly these.
pub fn described_parts_are_held()
    ensures { DescribedPartsAreHeld }
{}

/// In every format a part lists each of its stored elements once, and nothing else.
pub fn each_stored_element_once()
    ensures { EachStoredElementOnce }
{}

/// At the indices of an element a format lists the value that it is stored with, and none where it is not stored.
pub fn lists_the_stored_values()
    ensures { ListsTheStoredValues }
{}

/// No format lists an index twice below a parent.
pub fn no_index_stands_twice()
    ensures { NoIndexStandsTwice }
{}

/// Where a format calls a level ordered, the indices that it lists there rise.
pub fn ordered_levels_rise()
    ensures { OrderedLevelsRise }
{}

/// A stored element has the value of the matrix there.
pub fn stored_elements_have_their_values()
    ensures { StoredElementsHaveTheirValues }
{}

/// The test of one element of a whole matrix agrees with the list of its stored elements.
pub fn the_test_agrees_with_the_list()
    ensures { TheTestAgreesWithTheList }
{}

/// Searching a tree level by level finds a leaf exactly where the tree lists these indices, with the value listed there.
pub fn searches_find_the_content()
    ensures { SearchesFindTheContent }
{}
