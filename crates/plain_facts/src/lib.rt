//! Facts of plain logic and of numbers, each under one name: what every proof takes for granted, and several would prove anew.
//! The model and the laws cite it. It knows nothing of the subject, and stays as it is: a new fact comes into another room first.
#![tactic(auto)]
