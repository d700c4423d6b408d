// One change of a stream: document 01, 'Stream of one signal', after wellen's SignalEncoder and load_ functions.
//
// Here stand the definitions, specs/Stream.antt (the bytes), specs/Answer.antt (what was said, its length, and the answers) and specs/Entries.antt, with
// their laws, and the answer that reading gives. That reading accepts exactly what writing makes is proved in proofs/StreamTrip.antt. The code is in
// `stream_length`, `stream_write`, `stream_read` and `stream_known`.
#![tactic(auto)]

pub mod read;
