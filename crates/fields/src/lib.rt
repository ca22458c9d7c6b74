// Tables of fields that stand one after the other in a record: what a table is, and the laws that every record's table
// has of it. Only definitions and laws, so there is nothing to call.
#![tactic(auto)]
