// Definitions and theorems alone: a chain of calls from C is a run. Nothing here is code.
