//! The laws of trees of lists, each as the contract of a function that does nothing.

ghost use Rattle.pj_names.specs.Laws.{TreeOfNone, NamespaceOfTree, TreeOfMembers};

/// The tree without a name and without an inode is that of no change.
pub fn no_change_has_no_name()
    ensures { TreeOfNone }
{}

/// The tree of a lawful list, with the statuses of the list, is the namespace that a print walks.
pub fn trees_are_namespaces()
    ensures { NamespaceOfTree }
{}

/// The tree of a list is that of each list with the same members.
pub fn trees_are_of_members()
    ensures { TreeOfMembers }
{}
