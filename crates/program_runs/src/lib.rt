//! Worked runs of the program's one call: texts of files, words and what is expected, played by one helper.
#![tactic(auto)]

#[cfg(test)]
mod assembled;
#[cfg(test)]
mod commands;
#[cfg(test)]
mod elf;
#[cfg(test)]
mod exchanges;
#[cfg(test)]
mod faults;
#[cfg(test)]
mod images;
#[cfg(test)]
mod interrupted;
#[cfg(test)]
mod layout_pairs;
#[cfg(test)]
mod layouts;
#[cfg(test)]
mod linked;
#[cfg(test)]
mod linking;
#[cfg(test)]
mod made;
#[cfg(test)]
mod objects;
#[cfg(test)]
mod outside;
#[cfg(test)]
mod player;
#[cfg(test)]
mod refusals;
#[cfg(test)]
mod refused;
#[cfg(test)]
mod scripts;
#[cfg(test)]
mod served;
#[cfg(test)]
mod stock;
#[cfg(test)]
mod text_faults;
#[cfg(test)]
mod words;
