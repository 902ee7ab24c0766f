// Small crosses, each worked out by hand from the rules, and the places of the table.

#![tactic(auto)]

#[cfg(test)]
mod asking;
#[cfg(test)]
mod case;
#[cfg(test)]
mod halts;
#[cfg(test)]
mod inside;
#[cfg(test)]
mod pairs;
#[cfg(test)]
mod places;
#[cfg(test)]
mod quotes;
#[cfg(test)]
mod tails;
#[cfg(test)]
mod waiting;
