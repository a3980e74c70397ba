// What "the nearest float" and "the next float towards zero" mean (document 02, item 5), `specs/Nearest.antt`; the law that
// the rounding of the floats' arithmetic gives the nearest, `proofs/Law.antt`; and the law that patterns of bits which
// follow one another have no float in between, `proofs/Steps.antt`. It has no code of its own.

#![tactic(auto)]
