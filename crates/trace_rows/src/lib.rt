// Rows and their claims alone: what E5 of document 02 says of a trace, its text and its replay, worked out by hand. There is no code.
