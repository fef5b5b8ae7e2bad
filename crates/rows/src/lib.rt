// Rows and their claim alone: what document 01, and E1 and E2 of document 02, say of one input, worked out by hand. There is no code.
