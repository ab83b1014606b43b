// What the calls on a case answer on examples, and what they refuse.
mod frame_calls;
mod limits;
mod links;
mod logging;
mod paths;
mod refusals;
mod scratch;
mod support;
mod walks;
