//! Sessions played over a ring and a link, as tables of text. There are only tests here, above the
//! session and the ring that they need, so that neither is proved again with them.
#![tactic(auto)]

#[cfg(test)]
mod tests;
