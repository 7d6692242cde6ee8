// Command lines, the reading of a whole input, and the lines of faults.
mod faults;
mod inputs;
mod words;
