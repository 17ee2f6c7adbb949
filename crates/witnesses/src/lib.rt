// Examples, proved of the definitions. No code. The starred examples of document 01: `specs/Starred` has the rows, `specs/Strings` the
// bytes that they read, `proofs/Starred` the theorem. Recordings that meet the premises of demand 3: `specs/Recordings` has their bytes,
// `proofs/Witnesses` the facts. Recordings that meet all premises but one, so that demand 3 fails: `specs/Needed` and `proofs/Needed`.
// Records that write, recordings that agree where a string is, values as floats, and ephemeris sets: `Writable`, `Covered`, `Values` and
// `Sets` there.
#![tactic(auto)]
