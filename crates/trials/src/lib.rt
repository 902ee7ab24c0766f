// The layers tried on examples whose answers were worked out from docs/RULES.md.

#![tactic(auto)]

#[cfg(test)]
mod checks;
#[cfg(test)]
mod keys;
#[cfg(test)]
mod notices;
#[cfg(test)]
mod refusals;
#[cfg(test)]
mod sessions;
#[cfg(test)]
mod sheets;
#[cfg(test)]
mod ticks;
