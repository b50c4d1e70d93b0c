//! Tests of what cc_declared finds of the declarations of texts, at each limit and one beyond.
#![tactic(auto)]

#[cfg(test)]
mod declared;
#[cfg(test)]
mod limits;
