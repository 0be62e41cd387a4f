//! Laws of changes. The functions do nothing: what they promise is the law.
ghost use Rattle.policy_compare.specs.Laws.{NoneWhereEqual, OneListOfChanges};

/// One list at most has the changes of two policies.
pub fn one_list_of_changes()
    ensures { OneListOfChanges }
{}

/// There is no change exactly where each IPv4 and IPv6 address has the same verdict by both policies.
pub fn none_where_equal()
    ensures { NoneWhereEqual }
{}
