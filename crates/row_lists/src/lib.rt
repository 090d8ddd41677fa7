//! Lists of rows of which one passes a test: what a table shows, that keeps its rows by their places and finds one by an index. The
//! definitions change each row that passes and look all through; the code goes to one place. The rooms of tables cite it. It knows
//! nothing of what the rows are.
#![tactic(auto)]
