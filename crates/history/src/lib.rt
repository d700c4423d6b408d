// The history of a list of calls (specs/History.antt: document 01, 'History') and one history after the other (specs/Followed.antt: document
// 02, 'Joining two recordings'). Definitions only; they see kinds, the edition of the start, calls with their senders and which answers are
// refusals, and nothing of the recorder's state but the types of the skips.
#![tactic(auto)]
