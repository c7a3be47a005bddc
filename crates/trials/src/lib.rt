#![tactic(auto)]

#[cfg(test)]
mod against_all;
#[cfg(test)]
mod choosing;
#[cfg(test)]
mod costs;
#[cfg(test)]
mod limits;
#[cfg(test)]
mod marks;
#[cfg(test)]
mod plain;
#[cfg(test)]
mod playing;
#[cfg(test)]
mod reports;
#[cfg(test)]
mod seen;
#[cfg(test)]
mod worked;
