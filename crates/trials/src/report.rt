use crate::Trials;
use reference::boxes::Fault;
use reference::rules::Rule;
use reference::tally::Event;
use reference::words::Form;
use std::io;

impl<'a> Trials<'a> {
    fn print_endings(&self) -> io::Result<()> {
        for (name, count) in self.counts.endings.named() {
            if count > 0 {
                println!(self.rt; "{count:>9} {name}")?;
            }
        }
        Ok(())
    }

    fn print_reached(&self) -> io::Result<()> {
        println!(self.rt; "\nstatements executed")?;
        for (form, count) in Form::ALL.iter().zip(self.counts.tally.forms.iter()) {
            println!(self.rt; "{count:>9} {form}")?;
        }
        println!(self.rt; "\nmet besides")?;
        for (event, count) in Event::ALL.iter().zip(self.counts.tally.events.iter()) {
            println!(self.rt; "{count:>9} {event}")?;
        }
        for (kind, count) in self.counts.tally.kinds.iter().enumerate().skip(1) {
            println!(self.rt; "{count:>9} boxes made of kind {kind}")?;
        }
        Ok(())
    }

    fn print_careless(&self) -> io::Result<()> {
        println!(self.rt; "\ncareless: programs, those that fault, those that happen not to")?;
        for (rule, broken) in Rule::ALL.iter().zip(self.counts.broken.iter()) {
            let programs = broken.programs;
            let faults = broken.faults;
            let others = programs.saturating_sub(faults);
            println!(self.rt; "{programs:>9} {faults:>3} {others:>3} {rule}")?;
        }
        println!(self.rt; "\ntheir faults")?;
        for (fault, count) in Fault::ALL.iter().zip(self.counts.faults.iter()) {
            println!(self.rt; "{count:>9} {fault}")?;
        }
        Ok(())
    }

    // What came of the programs.
    pub(crate) fn print_programs(&self, programs: u32) -> io::Result<()> {
        let kept = self.counts.kept;
        let careless = self.counts.careless;
        let runs = self.counts.runs;
        let steps = self.counts.steps;
        println!(self.rt; "{programs} programs: {kept} kept, {careless} careless")?;
        println!(self.rt; "{runs} runs of those kept, {steps} steps compared\n")?;
        self.print_endings()?;
        self.print_reached()?;
        self.print_careless()
    }

    // What was said of rows.
    pub(crate) fn print_answers(&self, what: &str) -> io::Result<()> {
        println!(self.rt; "\n{what}")?;
        self.print_endings()
    }
}
